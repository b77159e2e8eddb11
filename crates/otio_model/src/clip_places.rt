//! Where what a clip's frames ask for stands, so that no frame looks for it.

ghost use Rattle.std.specs.Prelude.{◌≡◌, IfOk};
ghost use Rattle.std.specs.Option.{option_copied};
ghost use Rattle.otio_model.specs.Reels.{listed_reel};

use crate::compositions::Clip;
use json_value::Json;
use std::alloc::{AllocError, Global};

impl Clip {
    /// The same clip, which keeps the places of its media reference and of its reel, or that it has
    /// none. An error comes where memory runs out.
    pub fn with_places(self, alloc: Global) -> Result<Clip, AllocError>
        ensures { IfOk result (λ clip. clip ≡ self) }
    {
        let mut clip = self;
        clip.metadata.keep_reel(alloc)?;
        clip.media_references
            .keep_key(alloc, clip.active_media_reference_key.as_str())?;
        Ok(clip)
    }

    /// What stands in place of the clip's reel: the member `reel` of its metadata's object
    /// `cmx_3600`; `None` exactly where there is no such member. In practice it takes constant time
    /// where the clip keeps the places, which no clause says.
    pub fn listed_reel(&self) -> Option<&Json>
        ensures { option_copied result ≡ listed_reel self.now.metadata }
    {
        self.metadata.reel()
    }
}
