// The payload of a log-in: six bytes.
#![tactic(auto)]

ghost use Rattle.std.specs.Prelude.{◌≡◌};
ghost use Rattle.login.specs.Form.{encoded, decoded, ReadsBack};

// What two ends agree on, each as the smaller of two numbers.
#[derive(Clone, Copy, PartialEq, Eq, Debug)]
pub struct Parameters {
    // how many frames may be outstanding
    pub offset: u8,
    // the longest payload, in bytes
    pub payload: u16,
    // in hundreds
    pub baud: u16,
}

#[derive(Clone, Copy, PartialEq, Eq, Debug)]
pub struct LogIn {
    pub accept: bool,
    pub parameters: Parameters,
}

// The bits of byte 0 that are written: one of the two.
const CHANGED: u8 = 0x80;

const ACCEPT: u8 = 0x40;

// Named for the wire. `TryFrom` would be no plainer than `decode`: it wants an error type, and every caller drops it.
impl LogIn {
    pub fn encode(self) -> [u8; 6]
        ensures { result ≡ encoded self }
    {
        let first = if self.accept { ACCEPT } else { CHANGED };
        let [payload_high, payload_low] = self.parameters.payload.to_be_bytes();
        let [baud_high, baud_low] = self.parameters.baud.to_be_bytes();
        [
            first,
            self.parameters.offset,
            payload_high,
            payload_low,
            baud_high,
            baud_low,
        ]
    }

    // None where the payload hasn't six bytes.
    pub fn decode(payload: &[u8]) -> Option<LogIn>
        ensures { result ≡ decoded payload.now }
    {
        let &[
            first,
            offset,
            payload_high,
            payload_low,
            baud_high,
            baud_low,
        ] = payload
        else {
            return None;
        };
        Some(LogIn {
            accept: first & ACCEPT != 0,
            parameters: Parameters {
                offset,
                payload: u16::from_be_bytes([payload_high, payload_low]),
                baud: u16::from_be_bytes([baud_high, baud_low]),
            },
        })
    }
}

pub fn decoding_undoes_encoding()
    ensures { ReadsBack }
{}
