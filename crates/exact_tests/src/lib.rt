//! Tests of `exact_fraction`, `long_fraction`, `limb_number`, `limb_division`, `scaled_decimal`, `line_text` and `plain_list`: each call of
//! fractions at each type, numbers at the edges of these and numbers of several limbs, decimals, texts, and lists. And of `linear_dict` and
//! `simplex_core`: worked dictionaries and systems, and refusals worked by hand.
#![tactic(auto)]

#[cfg(test)]
mod decimals;
#[cfg(test)]
mod dictionary;
#[cfg(test)]
mod fractions;
#[cfg(test)]
mod limbs;
#[cfg(test)]
mod lines;
#[cfg(test)]
mod lists;
#[cfg(test)]
mod long_fractions;
#[cfg(test)]
mod method;
#[cfg(test)]
mod refusals;
