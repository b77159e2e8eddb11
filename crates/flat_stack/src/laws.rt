//! Laws of what comes of timelines. Their functions do nothing.

ghost use Rattle.std.specs.Prelude.{◌≡◌, List, map};
ghost use Rattle.otio_model.specs.declared.timelines.Timeline.{Timeline};
ghost use Rattle.otio_model.specs.Timelines.{bare};
ghost use Rattle.command_words.specs.declared.tools.ToolAsked.{ToolAsked};
ghost use Rattle.flat_stack.specs.declared.step_faults.ToolFault.{ToolFault};
ghost use Rattle.flat_stack.specs.Gathered.{IsConcat, IsConcatFault};
ghost use Rattle.flat_stack.specs.Tooled.{IsToolFault, IsTooled};

/// Law: of timelines that are equal up to their spare memory one thing comes at most, up to its
/// spare memory, or there is one fault.
pub fn one_outcome()
    ensures result { (asked : ToolAsked) (a b : List Timeline) (r q : Timeline) →
        map bare a ≡ map bare b → IsTooled asked a r → IsTooled asked b q → bare r ≡ bare q }
    ensures never { (asked : ToolAsked) (a b : List Timeline) (r : Timeline) (f : ToolFault) →
        map bare a ≡ map bare b → IsTooled asked a r → IsToolFault asked b f → ⊥ }
    ensures fault { (asked : ToolAsked) (a b : List Timeline) (f g : ToolFault) →
        map bare a ≡ map bare b → IsToolFault asked a f → IsToolFault asked b g → f ≡ g }
{}

/// Law: the same of timelines one after another.
pub fn one_concat()
    ensures result { (a b : List Timeline) (r q : Timeline) →
        map bare a ≡ map bare b → IsConcat a r → IsConcat b q → bare r ≡ bare q }
    ensures never { (a b : List Timeline) (r : Timeline) (f : ToolFault) →
        map bare a ≡ map bare b → IsConcat a r → IsConcatFault b f → ⊥ }
    ensures fault { (a b : List Timeline) (f g : ToolFault) →
        map bare a ≡ map bare b → IsConcatFault a f → IsConcatFault b g → f ≡ g }
{}
