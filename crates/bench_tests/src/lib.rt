// Scripts, and blocks for an end by itself, held to what the rules were worked out by hand to give.
#![tactic(auto)]

#[cfg(test)]
mod captured;
#[cfg(test)]
mod ends;
#[cfg(test)]
mod scripts;
#[cfg(test)]
mod shapes;
#[cfg(test)]
mod stage;
