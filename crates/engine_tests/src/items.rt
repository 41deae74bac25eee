//! Items of logs.
use rma_record::Item;
use rma_types::{Access, Dtype, Kind, Op, Step};

pub fn entry(call: u32, place: u32, step: Step) -> Item {
    Item::Entry { call, place, step }
}

/// The Issue of a sum of two halves of a cell, from this byte of the target's memory on.
pub fn issue(call: u32, target: u8, lo: u32) -> Item {
    Item::Issue {
        call,
        access: Access {
            window: 0,
            target,
            lo,
            len: 4,
            kind: Kind::Acc {
                op: Op::Sum,
                dtype: Dtype::Uint16,
            },
        },
    }
}

/// A touch of the access whose Issue has this index.
pub fn touch(issue: u32, element: u32, cell: u32, place: u32, bits: u64) -> Item {
    Item::Touch {
        issue,
        element,
        cell,
        place,
        bits,
    }
}
