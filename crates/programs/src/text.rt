//! Text of the programs: arguments, words and numbers, byte lists, recipients, lines, messages,
//! events, answers and faults. No contract states what a text means: runs show it.
pub mod answer;
pub mod arguments;
pub mod byte_list;
pub mod event;
pub mod fault;
pub mod line_error;
pub mod lines;
pub mod message;
pub mod peer_list;
pub mod recipients;
pub mod words;
