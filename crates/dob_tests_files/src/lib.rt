// Tests of files and of certificates: bytes and values from outside, and devices that fail.
#![tactic(auto)]

#[cfg(test)]
mod certificate;
#[cfg(test)]
mod certify;
#[cfg(test)]
mod dbfile;
#[cfg(test)]
mod sets;
