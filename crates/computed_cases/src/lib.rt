#![tactic(auto)]

// Cases that pool boards, watchers and watched boards are held to, each worked out by hand or by a small
// program of the test.
#[cfg(test)]
mod checks;
#[cfg(test)]
mod pools;
#[cfg(test)]
mod watchers;
