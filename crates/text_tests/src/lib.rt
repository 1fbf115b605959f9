//! Tests of what reads and writes texts: `case_tokens`, `case_text`, `csv_table`, `record_reading`, `cert_format`, `command_words` and
//! `outside_store`, by public calls alone.
#![tactic(auto)]

#[cfg(test)]
mod cases;
#[cfg(test)]
mod certificates;
#[cfg(test)]
mod costs;
#[cfg(test)]
mod in_memory;
#[cfg(test)]
mod of_system;
#[cfg(test)]
mod reading;
#[cfg(test)]
mod records;
#[cfg(test)]
mod tables;
#[cfg(test)]
mod tokens;
#[cfg(test)]
mod trickle;
#[cfg(test)]
mod words;
