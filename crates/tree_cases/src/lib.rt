//! Tables of texts and their trees, of uses of macros, and of words of types. Nothing stands on this crate.
#![tactic(auto)]

#[cfg(test)]
mod declarations;
#[cfg(test)]
mod expressions;
#[cfg(test)]
mod macro_uses;
#[cfg(test)]
mod reading;
#[cfg(test)]
mod reading_again;
#[cfg(test)]
mod showing;
#[cfg(test)]
mod type_words;
#[cfg(test)]
mod units;
