// Tests of shares, items, links, nodes and worlds, a module each: what no clause says, against values from outside. What a line can ask, as a cell's
// replies, tokens and what a world shows after some events, is asked in `dob_answers`.
#![tactic(auto)]

#[cfg(test)]
mod link;
#[cfg(test)]
mod node;
#[cfg(test)]
mod outboxes;
#[cfg(test)]
mod sets;
#[cfg(test)]
mod share;
#[cfg(test)]
mod update;
#[cfg(test)]
mod world;
