// Tests of platforms: against values that are typed by hand, and of generated ones, which are read back.
#![tactic(auto)]

#[cfg(test)]
mod generated;
#[cfg(test)]
mod rich;
#[cfg(test)]
mod small;
