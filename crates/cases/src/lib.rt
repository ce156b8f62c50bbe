// Worked examples, as tests.
#![tactic(auto)]

#[cfg(test)]
mod badges;
#[cfg(test)]
mod letters_of_texts;
#[cfg(test)]
mod logs;
#[cfg(test)]
mod names;
