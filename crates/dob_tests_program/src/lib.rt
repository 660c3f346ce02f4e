// Tests of the program over files in memory, devices that fail, a clock and an input that comes in pieces, and of the order of its calls. What the built
// program prints is asked in tests/.
#![tactic(auto)]

#[cfg(test)]
mod disk_order;
#[cfg(test)]
mod each;
#[cfg(test)]
mod lions;
#[cfg(test)]
mod listed;
#[cfg(test)]
mod program;
#[cfg(test)]
mod progress;
#[cfg(test)]
mod rows;
#[cfg(test)]
mod shelves;
#[cfg(test)]
mod typed;
