// The frames that an end has sent and that are not yet acknowledged, oldest first. Headings and sizes wait in a queue,
// payloads stand in a store that is lent at each call: eight slots of 512 bytes.
#![tactic(auto)]

pub mod calls;
pub mod entry;
pub mod outstanding;

pub use outstanding::Outstanding;
