//! The predefined integer datatypes.
ghost use Rattle.std.specs.Prelude.{◌≡◌};
ghost use Rattle.rma_types.specs.Datatypes.{size_of};

/// A predefined integer datatype (MPI 3.1, section 3.2.2). Memory is little-endian.
#[derive(Clone, Copy, Debug, PartialEq, Eq)]
pub enum Dtype {
    /// -128 to 127.
    Int8,
    /// -32,768 to 32,767.
    Int16,
    /// -2,147,483,648 to 2,147,483,647.
    Int32,
    /// 0 to 255.
    Uint8,
    /// 0 to 65,535.
    Uint16,
    /// 0 to 4,294,967,295.
    Uint32,
    /// 0 to 255, for which only `replace`, `no_op` and the bitwise operations are allowed.
    Byte,
}

impl Dtype {
    /// The bytes of one element: 1, 2 or 4.
    pub fn size(self) -> u32
        ensures { result ≡ size_of self }
    {
        match self {
            Dtype::Int8 | Dtype::Uint8 | Dtype::Byte => 1,
            Dtype::Int16 | Dtype::Uint16 => 2,
            Dtype::Int32 | Dtype::Uint32 => 4,
        }
    }
}
