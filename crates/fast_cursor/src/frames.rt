//! The segments around an open group or element, and the elements of a sequence that still follow.

ghost use Rattle.std.specs.Prelude.{◌≡◌};
ghost use Rattle.fast_cursor.specs.device.Segments.{frame_elements};

use crate::map_place::MapPlace;

/// The elements of a sequence that still follow an open one.
#[derive(Clone, Copy, Debug)]
pub struct Elements {
    /// The number of elements.
    pub more: u32,
    /// The index in the program at which each one's nodes begin.
    pub start: usize,
    /// The number of bits that each uses.
    pub width: usize,
}

/// The segment around an open group or element. No byte of it is unused, so that it is copied in words.
#[derive(Clone, Copy)]
pub(crate) struct Frame {
    pub(crate) map: MapPlace,
    // the index in the program after the group or sequence
    pub(crate) after: usize,
    // 0 around a group, whose next fields have no meaning, and 1 around an element
    pub(crate) is_element: u32,
    // the number of elements of the sequence that still follow
    pub(crate) more: u32,
    pub(crate) start: usize,
    pub(crate) width: usize,
}

impl Frame {
    /// Returns the frame of a segment around one that begins.
    #[inline(always)]
    pub(crate) fn around(map: MapPlace, after: usize, elements: Option<Elements>) -> Frame
        ensures map { result.map ≡ map }
        ensures after { result.after ≡ after }
        ensures elements { frame_elements result ≡ elements }
    {
        match elements {
            None => Frame {
                map,
                after,
                is_element: 0,
                more: 0,
                start: 0,
                width: 0,
            },
            Some(elements) => Frame {
                map,
                after,
                is_element: 1,
                more: elements.more,
                start: elements.start,
                width: elements.width,
            },
        }
    }

    /// Returns the elements of the sequence that still follow, if the open segment is an element.
    #[inline(always)]
    pub(crate) fn elements(self) -> Option<Elements>
        ensures { result ≡ frame_elements self }
    {
        if self.is_element == 0 {
            return None;
        }
        Some(Elements {
            more: self.more,
            start: self.start,
            width: self.width,
        })
    }
}
