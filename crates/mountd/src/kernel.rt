//! The kernel's messages over standard input and output.
ghost use Rattle.std.specs.Prelude.{◌≡◌};

use eden_fuse_host::Lines;
use eden_fuse_session::{NotSent, Received, Receiver, Sender};
use std::io::{Read, Stdin, Stdout, Write};

/// The message is gone before it was read.
const ENOENT: i32 = 2;

const EINTR: i32 = 4;

const EAGAIN: i32 = 11;

/// The folder is unmounted.
const ENODEV: i32 = 19;

/// The folder is unmounted, while a message was on its way.
const ECONNABORTED: i32 = 103;

/// Standard input, of which each read gives one whole message. No contract knows its messages.
#[derive(Drop)]
pub struct KernelInput {
    input: Stdin,
}

impl KernelInput {
    pub fn new(input: Stdin) -> KernelInput {
        KernelInput { input }
    }
}

impl Receiver for KernelInput {
    ghost use Rattle.std.specs.Prelude.{None};

    ghost waiting = { λ _. None };

    fn receive(&mut self, room: &mut [u8]) -> Received {
        match self.input.read(room) {
            Ok(0) => Received::End,
            Ok(len) => Received::Message(len),
            Err(error) => match error.raw_os_error() {
                Some(ENODEV | ECONNABORTED) => Received::End,
                Some(ENOENT | EINTR | EAGAIN) => Received::Nothing,
                _ => Received::Failed,
            },
        }
    }
}

/// Standard output, of which each write takes one whole message. No contract knows its messages.
#[derive(Drop)]
pub struct KernelOutput {
    output: Stdout,
    failures: u64,
}

impl KernelOutput {
    /// It hasn't failed yet.
    pub fn new(output: Stdout) -> KernelOutput
        ensures { ⟦<KernelOutput as Sender>⟧.failures result ≡ 0 }
    {
        KernelOutput {
            output,
            failures: 0,
        }
    }
}

impl Sender for KernelOutput {
    ghost use Rattle.std.specs.Prelude.{None};

    ghost sent = { λ _. None };

    ghost failures = { λ o. o.failures };

    fn send(&mut self, message: &[u8]) -> Result<(), NotSent> {
        let taken = match self.output.write(message) {
            Ok(len) => len == message.len(),
            Err(_) => false,
        };
        // The count stays once it can't rise.
        if taken || self.failures == u64::MAX {
            return Ok(());
        }
        self.failures += 1;
        Err(NotSent)
    }
}

/// Standard input and output for several threads. The kernel gives each message to one of them, and takes answers from
/// all.
#[derive(Clone, Copy)]
pub struct KernelLines {
    input: Stdin,
    output: Stdout,
}

impl KernelLines {
    pub fn new(input: Stdin, output: Stdout) -> KernelLines {
        KernelLines { input, output }
    }
}

impl Lines<KernelInput, KernelOutput> for KernelLines {
    ghost use Rattle.std.specs.Prelude.{◌≡◌, None};

    ghost comes = { λ _ waiting. waiting ≡ None };

    fn line(&self) -> (KernelInput, KernelOutput) {
        (KernelInput::new(self.input), KernelOutput::new(self.output))
    }
}
