// Tests of lists past a segment, and of moves and predecessors against the reference, a module each. Ranks, classes and predecessors from outside are asked in
// `dob_answers`, and sizes in tests/values.sh.
#![tactic(auto)]

#[cfg(test)]
mod lists;
#[cfg(test)]
mod reference_rules;
#[cfg(test)]
mod reference_walk;
#[cfg(test)]
mod sets;
