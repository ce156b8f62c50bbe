// Keys, which say whose an event is: what all kinds of key have in common, and two kinds, badges and names.
#![tactic(auto)]

mod badge;
mod key;
mod latin;
mod letters;
mod name;
mod points;

pub use badge::Badge;
pub use key::{Key, keys_are_lawful};
pub use letters::table_is_sound;
pub use name::{Name, acute_e_is_one_name, one_name_is_respelled, texts_are_allowed};
