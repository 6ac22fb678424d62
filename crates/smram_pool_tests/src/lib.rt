// Tests of the pool against a table of calls that reference/pool.py prints.
#![tactic(auto)]

#[cfg(test)]
mod table;
