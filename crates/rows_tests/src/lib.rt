// Tests of the rows of a processor's parts: whole runs, each event typed by hand from the table of the rows.
#![tactic(auto)]

#[cfg(test)]
mod arrivals;
#[cfg(test)]
mod handshakes;
