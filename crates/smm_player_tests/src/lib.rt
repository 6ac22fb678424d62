// Tests of the player that need a store or a sink which no file case can have: ones that fail, and ones that count.
#![tactic(auto)]

#[cfg(test)]
mod counting;
#[cfg(test)]
mod reports;
#[cfg(test)]
mod tests;
