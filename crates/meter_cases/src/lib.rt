#![tactic(auto)]

// Cases that meters are held to, each worked out by hand.
#[cfg(test)]
mod checks;
#[cfg(test)]
mod deadlines;
#[cfg(test)]
mod returns;
