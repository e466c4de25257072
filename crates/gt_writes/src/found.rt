// A leaf that was found already.
use gt_elements::Element;
use gt_objects::Known;
use gt_value::Place;

/// Where a leaf of an object was found: the element in which it lies, and its place; and, where a pointer is to be written, the object
/// that it is to name, if that is known.
#[derive(Clone, Copy, Debug, PartialEq, Eq)]
pub struct Found {
    pub element: Element,
    pub place: Place,
    pub target: Option<Target>,
}

/// An object, by its address, and what is known of it.
#[derive(Clone, Copy, Debug, PartialEq, Eq)]
pub struct Target {
    pub addr: u64,
    pub known: Known,
}
