#![tactic(auto)]

// Cases that boards, tables and board text are held to, each worked out by hand from the format.
#[cfg(test)]
mod accepted;
#[cfg(test)]
mod checks;
#[cfg(test)]
mod limits;
#[cfg(test)]
mod prefixes;
#[cfg(test)]
mod printed;
#[cfg(test)]
mod refusals;
#[cfg(test)]
mod room;
#[cfg(test)]
mod tables;
#[cfg(test)]
mod trailing;
