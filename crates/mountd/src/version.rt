//! Which program this is.
use std::io;

/// What the file VERSION says.
const VERSION: &str = "0.1.0";

/// The toolchains with which the gate passed, as `rt version` names them, and the README.
const TOOLCHAINS: &[&str] = &[
    "rattle-kit-13f logic dac8208d650f15bf",
    "rattle-kit-13b logic dac8208d650f15bf",
];

/// The versions of overlays' files that are read.
const OVERLAYS: &[u32] = &[1, 2];

/// Tells on standard output, line by line, the version, which toolchains prove it, and which overlays it reads.
pub fn version<R: Print>(rt: &R) -> io::Result<()> {
    println!(rt; "mountd {VERSION}")?;
    for toolchain in TOOLCHAINS {
        println!(rt; "proved with {toolchain}")?;
    }
    for version in OVERLAYS {
        println!(rt; "reads overlays of version {version}")?;
    }
    Ok(())
}
