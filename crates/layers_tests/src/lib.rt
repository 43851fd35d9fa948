// Examples of layers, racks and lists of answers, proved to be safe and then run.
#![tactic(auto)]

#[cfg(test)]
mod answers;
#[cfg(test)]
mod calls;
#[cfg(test)]
mod memo;
#[cfg(test)]
mod piles;
#[cfg(test)]
mod quota;
#[cfg(test)]
mod racks;
