//! Labels with the number of the search that they are from.
ghost use Rattle.std.specs.Prelude.{◌≡◌, None, length, map, replicate, IfOk};
ghost use Rattle.shortest_forest.specs.Stamps.{label_of, AreNotLater};

use crate::label::Label;
use std::alloc::{AllocError, Global};

/// A label, which holds where its stamp is that of the search.
#[derive(Clone, Copy)]
pub(crate) struct Stamped {
    pub(crate) distance: u64,
    pub(crate) wire: Option<u32>,
    pub(crate) stamp: u32,
}

/// The label, if it is from the search of this number.
pub(crate) fn label_in(label: Stamped, stamp: u32) -> Option<Label>
    ensures { result ≡ label_of stamp label }
{
    if label.stamp == stamp {
        Some(Label {
            distance: label.distance,
            wire: label.wire,
        })
    } else {
        None
    }
}

/// The label of no search.
const UNKNOWN: Stamped = Stamped {
    distance: 0,
    wire: None,
    stamp: 0,
};

/// Labels of no search.
pub(crate) fn unknown_labels(alloc: Global, fpgas: usize) -> Result<Vec<Stamped>, AllocError>
    ensures none { IfOk result (λ labels. map (label_of 1) labels.items ≡ replicate fpgas None) }
    ensures not_later { IfOk result (λ labels. AreNotLater 1 labels.items) }
{
    let labels = vec![in alloc; UNKNOWN; fpgas]?;
    Ok(labels)
}

/// The number of the search after that of this number. Where numbers are used up they begin anew, and all
/// labels become those of no search.
pub(crate) fn next_stamp(labels: &mut Vec<Stamped>, stamp: u32) -> u32
    requires { AreNotLater stamp labels.old.items }
    ensures none { map (label_of result) labels.new.items ≡ replicate (length labels.old.items) None }
    ensures not_later { AreNotLater result labels.new.items }
{
    if stamp < u32::MAX {
        return stamp + 1;
    }
    labels.fill(UNKNOWN);
    1
}
