//! The edit decision list of a timeline, and the timeline of a list.
//!
//! **The surface.** [`events`] makes the list of a timeline, or names the first child that a list
//! doesn't carry ([`NotCarried`], with its reason, [`Why`]). [`conform`] makes the timeline of a
//! list, or names the first event that the media list doesn't hold ([`ConformFault`]). The types
//! that these take and give are given out here too, so a caller needs no other crate for them: the
//! list and its parts ([`EventList`], [`Event`], [`Side`], ..), [`MediaList`] and [`Timeline`].
//!
//! The other calls are for the crates of this program. [`homes`] names the item that each event of
//! a timeline's list comes from. A [`Job`] is what a list is written for, and a [`ChildContext`] a
//! child of a track with its neighbours; [`reason_of`] and [`event_of`] say why a child isn't
//! carried and which event it gives. What all this means is defined in the crate `edl_frames`.
#![tactic(auto)]

mod bools;
mod channels;
mod child_context;
mod child_reasons;
mod children;
mod clip_sides;
mod clips;
mod conforming;
mod draft_events;
mod event_homes;
mod event_of_child;
mod events_from_tracks;
mod events_of_timeline;
mod faults_at_places;
mod frames;
mod item_counts;
mod items;
mod items_from_events;
mod laws;
mod list_settings;
mod m2_speeds;
mod media_faults;
mod merging;
mod outgoing_side;
mod overlaps;
mod reel_rows;
mod settings_for;
mod sides;
mod timeline_from_list;
mod times;
mod visible_clips;
mod wipes;

pub use child_context::{ChildContext, Past};
pub use child_reasons::reason_of;
pub use conforming::conform;
pub use edl_frames::{ConformFault, NotCarried, Why};
pub use edl_list::{Channel, Cross, Event, EventList, EventSeq, Reel, Side};
pub use event_homes::homes;
pub use event_of_child::event_of;
pub use events_of_timeline::events;
pub use laws::seats_are_children;
pub use list_settings::Job;
pub use media_list::MediaList;
pub use otio_model::Timeline;
pub use settings_for::job_of;
