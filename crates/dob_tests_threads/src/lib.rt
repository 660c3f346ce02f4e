// Tests of boards, inboxes and runs, a module each: threads that meet, and what is left of them.
#![tactic(auto)]

#[cfg(test)]
mod board;
#[cfg(test)]
mod chan;
#[cfg(test)]
mod run;
#[cfg(test)]
mod sets;
