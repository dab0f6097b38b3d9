//! Types of declarations, of constants and of tags.
#![tactic(auto)]

mod given;
mod lefts;
mod tags;
mod typing;

pub use given::{Type, Types, declared_type, future_of, has_tags, is_plain, is_same_type};
pub use lefts::fit_names;
pub use tags::{Tagged, fits_tag, lacks_tag, note_lacking, note_tags};
pub use typing::{PlainType, const_type, note_decls, tag_type};
