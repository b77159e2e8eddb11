//! Timecode labels of SMPTE ST 12-1: the frame numbers of a day and the labels that name them;
//! words that are rates, in frames a second; and points of a record, each a frame by its number or
//! by a label.
#![tactic(auto)]

mod address;
mod counts;
mod faults;
mod forms;
mod laws;
mod modes;
mod numbers;
mod points;
mod timecode;

pub use faults::TcFault;
pub use forms::is_label_form;
pub use laws::{
    bytes_of_labels, counts_of_days, labels_of_numbers, labels_read_again, numbers_of_labels,
    one_answer, read_written, write_read,
};
pub use modes::{Mode, mode_of};
pub use numbers::whole_number;
pub use points::{RecordPoint, frame_at, frame_of_label, one_point, point_of};
pub use tick_time::rate_of;
pub use timecode::{label, label_frame, read};
