//! What holds of two runs, one after the other.

ghost use Rattle.image_shell.specs.Told.{WhatACrashLeftIsMounted};

/// A run over what a crash left of another begins with the tree that the answers of the first tell.
pub fn what_a_crash_left_is_mounted()
    /// promise: A run over what a crash left of another begins with the tree that the answers of the first tell.
    ensures { WhatACrashLeftIsMounted }
{}
