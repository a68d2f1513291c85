// The product: what other Rattle programs call is named here, and what C calls is in `batqemulo_c`. None of it asks anything of
// its caller. The calls themselves are in the crates whose names begin with `call_`, and what they promise in `promises`.
#![tactic(auto)]

pub use answer::{Answer, CAnswer};
pub use call_argument::{pairs_line, text_line};
pub use call_catalogue::{catalogue_text, text_catalogue};
pub use call_exercise::{pairs_exercise, text_exercise};
pub use call_kinds::pairs_kinds;
pub use call_labels_lists::{moves_labels, moves_lengths, pairs_labels, pairs_lengths};
pub use call_labels_text::{text_labels, text_lengths};
pub use call_listing::text_listing;
pub use call_mend::text_mend;
pub use call_number::{number_code, number_text};
pub use call_reason::text_reason;
pub use call_sheet::{text_sheet, text_sheet_update};
