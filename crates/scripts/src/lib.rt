//! Scripts of any kind: from the bytes of an input to the bytes of its replies.
//!
//! `words` cuts an input into lines, and a line into words: a name and numbers, and the layouts,
//! regions and parties that these numbers write. `driving` defines a kind of script, and reads and
//! runs a script of a kind. `answering` chooses a kind by the first line, and writes the replies;
//! `status` has the status of a run. `laws` has a law for any input.
#![tactic(auto)]

pub mod answering;
pub mod driving;
pub mod laws;
pub mod status;
pub mod words;
