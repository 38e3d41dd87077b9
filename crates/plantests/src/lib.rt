// Examples of what reading and showing a sheet answer.
#![tactic(auto)]

#[cfg(test)]
mod reading;
#[cfg(test)]
mod sheets;
#[cfg(test)]
mod showing;
#[cfg(test)]
mod stock;
