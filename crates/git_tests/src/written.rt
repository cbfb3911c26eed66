//! What Git wrote, and what it said of it.
use eden_model::Cause;

/// An object of a repository that Git made: its id, its loose file and its framed bytes, in hexadecimal digits.
#[derive(Clone, Copy)]
pub(crate) struct Written {
    pub(crate) id: &'static str,
    /// Where Git keeps it below its directory of objects.
    pub(crate) place: &'static str,
    pub(crate) file: &'static str,
    pub(crate) framed: &'static str,
}

/// A blob.
pub(crate) const BLOB: Written = Written {
    id: "83baae61804e65cc73a7201a7252750c76066a30",
    place: "83/baae61804e65cc73a7201a7252750c76066a30",
    file: "78014bcac94f52303460284b2d2acecccf5330e4020037500582",
    framed: "626c6f622031300076657273696f6e20310a",
};

/// Two blobs, a tree, a commit and a tag. The framed bytes are those of `git cat-file`, after their header.
pub(crate) const WRITTEN: &[Written] = &[
    BLOB,
    Written {
        id: "e69de29bb2d1d6434b8b29ae775ad8c2e48c5391",
        place: "e6/9de29bb2d1d6434b8b29ae775ad8c2e48c5391",
        file: "78014bcac94f523060000009b001f0",
        framed: "626c6f62203000",
    },
    Written {
        id: "36189ae2a23efe43f726450306c504993d5d3843",
        place: "36/189ae2a23efe43f726450306c504993d5d3843",
        file: "78012b294a4d5530b26430343030333151286168deb52eb1c12ff54cf17205a9a2a0529e32b62c0300db320bf9",
        framed: "747265652032390031303036343420740083baae61804e65cc73a7201a7252750c76066a30",
    },
    Written {
        id: "ce010c8e639ca60cc98a877680aadde6833a50f2",
        place: "ce/010c8e639ca60cc98a877680aadde6833a50f2",
        file: "78017d8c310e80200c009d7945779742012531469f8250a28331c1fa7fa371f6a61b2e978e7ddf04b4c1462a3390d77d\
         886ca2212e6ca974c65b87843e39b4215076997a4b2a5eb21e156618e2b48ca03bfc80f61195deb1f04fa2ca564f5137\
         1abc21f7",
        framed: "636f6d6d6974203132300074726565203336313839616532613233656665343366373236343530333036633530343939\
         33643564333834330a617574686f722041203c6140623e2031373030303030303030202b303030300a636f6d6d697474\
         65722041203c6140623e2031373030303030303030202b303030300a0a66697273740a",
    },
    Written {
        id: "aa3b7d233299570b2eb57ee291ee0c0588de3ade",
        place: "aa/3b7d233299570b2eb57ee291ee0c0588de3ade",
        file: "78012d8c410a02310c4567dd5364ef269d6a9a0119f428691a8b42a94810bcbd16fc9bf7168fefd220e27119e561eaa0\
         8611958dd2a642a8bab170cec42852ab11a72427bcadc13f4f031dbddf3df8efe31d279abde00a67b9941d62c6ffe030\
         25cc207c0135af1f1c",
        framed: "74616720313034006f626a65637420636530313063386536333963613630636339386138373736383061616464653638\
         333361353066320a7479706520636f6d6d69740a7461672076310a7461676765722041203c6140623e20313730303030\
         30303030202b303030300a0a7461670a",
    },
];

/// The streams of what is no object, and what is answered.
pub(crate) const BAD: &[(&str, &str, Cause)] = &[
    (
        "a size that is too small",
        "789c4bcac94f523061c848cdc9c9070019a30408",
        Cause::Device,
    ),
    (
        "a size that is too large",
        "789c4bcac94f523063c848cdc9c9070019b1040a",
        Cause::Device,
    ),
    (
        "a leading zero",
        "789c4bcac94f52303065c848cdc9c907001cea0439",
        Cause::Device,
    ),
    (
        "a sign",
        "789c4bcac94f52d03665c848cdc9c907001cc20434",
        Cause::Device,
    ),
    (
        "no word of an object",
        "789c4bca294d523065c848cdc9c9070019e6040f",
        Cause::Device,
    ),
    (
        "no NUL",
        "789c4bcac94f5230cd48cdc9c9070017b50409",
        Cause::Device,
    ),
    (
        "a long header without a NUL",
        "789c4bcac94f5230251e000014f90aa7",
        Cause::Device,
    ),
    ("no bytes", "789c030000000001", Cause::Device),
    ("no size", "789c4bcac94f52600000079001c0", Cause::Device),
    (
        "no space",
        "789c4bcac94f3265c848cdc9c90700170a03e9",
        Cause::Device,
    ),
    (
        "one byte over the limit",
        "789c4bcac94f5230343037363731b4303265c848cdc9c907003f2505da",
        Cause::TooLarge,
    ),
    (
        "a word after which more stands",
        "789c4bcac94f2a563065c848cdc9c907001f55047c",
        Cause::Device,
    ),
    (
        "the limit, which is claimed",
        "789c2b294a4d5530343037363731b4303261c848cdc9c90700408805ea",
        Cause::Device,
    ),
];
