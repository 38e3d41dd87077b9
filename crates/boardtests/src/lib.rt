// Examples of what boards answer, and what generic code over boards is proved to do with the memory handed in.
#![tactic(auto)]

#[cfg(test)]
mod answers;
mod handed_in;
#[cfg(test)]
mod stacked;
