// Worked examples of query texts, as tests.
#![tactic(auto)]

#[cfg(test)]
mod conditions;
#[cfg(test)]
mod contents;
#[cfg(test)]
mod faults;
#[cfg(test)]
mod good;
#[cfg(test)]
mod letters_of_texts;
#[cfg(test)]
mod outcome;
#[cfg(test)]
mod plain;
#[cfg(test)]
mod sense_of_conditions;
#[cfg(test)]
mod sense_of_parts;
#[cfg(test)]
mod wrong_tokens;
