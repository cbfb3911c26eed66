//! Streams that zlib 1.2.13 wrote, by Python's `zlib.compressobj`.
use eden_inflate::Refusal;

/// What each of `OF_TEXT` gives.
pub(crate) const TEXT: &[u8] =
    b"A directory is read as its entries come; an entry is read as its object comes. \
    What was read once is kept, and what is kept isn't asked for again, until it is the oldest.\n";

/// By several levels, strategies and flushes, in hexadecimal digits.
pub(crate) const OF_TEXT: &[(&str, &str)] = &[
    (
        "stored",
        "780101ab0054ff41206469726563746f727920697320726561642061732069747320656e747269657320636f6d653b20616e\
         20656e747279206973207265616420617320697473206f626a65637420636f6d65732e205768617420776173207265616420\
         6f6e6365206973206b6570742c20616e642077686174206973206b6570742069736e27742061736b656420666f7220616761\
         696e2c20756e74696c20697420697320746865206f6c646573742e0a40f23bc1",
    ),
    (
        "fast",
        "7801658e310e024108457b4ff13b9bcd5ec0ca5358e30cbab82b9801b3f1f632133b2b92cfe3f1cfa8d2b884b50fc4d1982a\
         c821e1608d26ec28f6e4134847f047d9f591e703f2199785027b0a86c8b470b7aefc8a290d157bdfff929c7a8cfcb672c5cd\
         1ae84ea213de1ab26583cec5c2b0adb2c77cf80240f23bc1",
    ),
    (
        "usual",
        "789c658c310ec2400c047b5eb11d4d940f50f18ad4e66c8849b0d1d928e2f7dc45e9a856da9d9d2b58ab94f4fa8506aa1083\
         029a01b1ac2a81e22fb9806c2ffe28bf3ddb7d8762c4345362a303712bd2f945de39340363ebfbd1b4b47336cf228cbb57d0\
         83d4067c2c756deecee52cf09525723cfd0040f23bc1",
    ),
    (
        "best, in a window of 512 bytes",
        "18d3658c310ec2400c047b5eb11d4d940f50f18ad4e66c8849b0d1d928e2f7dc45e9a856da9d9d2b58ab94f4fa8506aa1083\
         029a01b1ac2a81e22fb9806c2ffe28bf3ddb7d8762c4345362a303712bd2f945de39340363ebfbd1b4b47336cf228cbb57d0\
         83d4067c2c756deecee52cf09525723cfd0040f23bc1",
    ),
    (
        "with literals alone",
        "780105c1b10dc2400c40d19e297e471365012aa6a03677869824bec8368ad89ef7ee740b6d35e28725a1d291c42a51af304d\
         dad8f58638ea153f2c09958e2456c9787eb4156dec9a338f458a539250e90c6f8a25ab1e3521de3917292c59f5282cfd5a48\
         aeda798d40de623ef1f5b20d2b2ca945195bd7acf9f20740f23bc1",
    ),
    (
        "with matches of the byte before alone",
        "780105c1b10dc2400c40d19e297e471365012aa6a03677869824bec8368ad89ef7ee740b6d35e28725a1d291c42a51af304d\
         dad8f58638ea153f2c09958e2456c9787eb4156dec9a338f458a539250e90c6f8a25ab1e3521de3917292c59f5282cfd5a48\
         aeda798d40de623ef1f5b20d2b2ca945195bd7acf9f20740f23bc1",
    ),
    (
        "with the fixed codes",
        "7801735448c92c4a4d2ec92faa54c82c56284a4d4c51482c56c82c295648cd2b29ca4c2d5648cecf4db55648cc030b60a8ca\
         4fca026a072b2ad65308cf482c51284f842ac9cf4b4e05a9cf4e2d28d1019a90a2500e92878a00e93cf512a039d9a9290a69\
         f9450a89e98999793a0aa57925993940b341ea4a325215f27352528b4bf4b80040f23bc1",
    ),
    (
        "in two blocks and an empty one",
        "789c725448c92c4a4d2ec92faa54c82c56284a4d4c51482c56c82c295648cd2b29ca4c2d5648cecf4db55648cc030b60a8ca\
         4fca026a072b2ad65308cf482c512807000000ffff4b842ac9cf4b4e05a9cf4e2d28d1019a90a2500e92878a00e93cf512a0\
         39d9a9290a69f9450a89e98999793a0aa57925993940b341ea4a325215f27352528b4bf4b80040f23bc1",
    ),
    (
        "in two blocks, the second without what came before",
        "789c64cac10980400c04c056b6021bf07555f88eb905235c024940ecde029cf70c4c4b6a47beb0425226a4605da0771a0b1a\
         8b3bc441efff8af3a63634166bc37149e3f9000000ffff35c8b10d80300c00c19e29bea389d8c92206ac440e8a8d589f8a2b\
         4f82a95219be2b1634bdb3205e792fc97fb0f03591685a39c6444e312f3c9ed6b1c482bc94d1ab466ecb0740f23bc1",
    ),
];

/// A byte of which stream is changed, by which bits, and why zlib then refuses it.
pub(crate) const CHANGED: &[(usize, usize, u8, Refusal)] = &[
    (4, 2, 90, Refusal::BlockKind),
    (4, 2, 2, Refusal::BlockKind),
    (6, 21, 128, Refusal::Checksum),
    (7, 14, 32, Refusal::Checksum),
    (2, 4, 102, Refusal::Code),
    (8, 10, 1, Refusal::Code),
    (1, 35, 8, Refusal::Code),
    (3, 35, 1, Refusal::Code),
    (1, 24, 8, Refusal::Code),
    (3, 27, 1, Refusal::Code),
    (4, 25, 172, Refusal::CodeLengths),
    (5, 18, 29, Refusal::CodeLengths),
    (8, 19, 16, Refusal::CodeLengths),
    (2, 20, 32, Refusal::CodeLengths),
    (8, 2, 144, Refusal::CodeLengths),
    (5, 3, 222, Refusal::CodeLengths),
    (5, 1, 62, Refusal::Dictionary),
    (8, 1, 101, Refusal::Dictionary),
    (6, 7, 8, Refusal::Distance),
    (6, 115, 8, Refusal::Distance),
    (0, 0, 16, Refusal::Header),
    (2, 0, 76, Refusal::Header),
    (3, 0, 140, Refusal::Header),
    (4, 0, 66, Refusal::Header),
    (0, 3, 16, Refusal::StoredLength),
    (8, 71, 16, Refusal::StoredLength),
    (7, 36, 8, Refusal::Symbol),
    (6, 34, 246, Refusal::Symbol),
    (6, 30, 209, Refusal::Symbol),
    (6, 30, 213, Refusal::Symbol),
];

/// 70,000 zeros.
pub(crate) const OF_ZEROS: &str =
    "78daedc13101000000c2a0f54f6d094fa0000000000000000000000000000000000000000000000000000000000000000000\
    0000000000000000000000000000000000000000000000000000000000000000000080b701117f0001";

/// Nothing.
pub(crate) const OF_NOTHING: &str = "789c030000000001";
