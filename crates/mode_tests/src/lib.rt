// Tests of blocks, of loading a key, and of EAX over whole strings.
#![tactic(auto)]

#[cfg(test)]
mod blocks;
#[cfg(test)]
mod keys;
#[cfg(test)]
mod records;
#[cfg(test)]
mod reference;
#[cfg(test)]
mod values;
#[cfg(test)]
mod wide;
