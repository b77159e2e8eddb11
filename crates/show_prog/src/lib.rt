//! What a viewer sees of a timeline, and the listings of a timeline.
//!
//! - [`show`]: the [`Picture`] that a root child shows at a record frame; [`show_at`] is the same
//!   with a [`Clock`], which is found once for all frames.
//! - [`print_show`]: the text of a picture; [`put_show`] hands it to a buffer.
//! - [`listing_of`] and [`write_rows`]: which record frames and root children are listed, and the
//!   lines of the command `frames`, as `specs/Rows.antt` says.
//! - [`write_listings`]: the listings of the commands `tool` and `stat` (tracks, clips, the keys of
//!   their media, and numbers), as `specs/ListingTexts.antt` says.
//!
//! A [`Picture`] borrows the texts of the timeline that it was taken from. A stream is an [`Out`]
//! of `dev_io`; a call that sends answers with an [`OutputFault`] or a [`WriteFault`].
#![tactic(auto)]

mod clip_rows;
mod clips;
mod counting;
mod frame_laws;
mod frame_options;
mod frame_range;
mod frame_rows;
mod item_at;
mod items;
mod laws;
mod listing_writer;
mod mix_weight;
mod picture;
mod picture_text;
mod places;
mod shows;
mod stats;
mod tracks;

pub use clips::key_of;
pub use dev_io::{Out, OutBuffer, OutputFault, WriteFault};
pub use frame_laws::bare_rows_are_listed;
pub use frame_options::Listings;
pub use frame_range::{Listing, listing_of};
pub use frame_rows::write_rows;
pub use item_at::{ActiveTransition, Held, holder, overlap_at};
pub use items::media_at;
pub use laws::{bare_is_listed, listings_are_worked, rates_are_written, spots_are_clips};
pub use listing_writer::write_listings;
pub use otio_model::{Children, Clip, Item, Timeline};
pub use picture::{KeyRef, MixKind, Picture};
pub use picture_text::{print_show, put_key, put_show};
pub use sequences::Text;
pub use shows::{Clock, clock_of, show, show_at};
pub use smpte_tc::RecordPoint;
pub use stats::put_rate_text;
pub use tick_time::Rate;
