//! Disks that can be made to fail and to stop.

ghost use Rattle.std.specs.Prelude.{◌≡◌, ℕ, Bool, OnOk, OnErr};
ghost use Rattle.disk_model.specs.Arms.{IsUnmoved};
ghost use Rattle.disk_model.specs.Memory.{IsLawfulArm};
ghost use Rattle.disk_model.specs.declared.image.Arm.{Arm as arm_type};

use crate::disk::Disk;
use crate::image::{Arm, Armed};
use base_names::NoMemory;
use std::alloc::Global;

/// A disk on which failures and stops can be armed. Each failure is added; a later stop replaces one that hasn't come. A stop
/// removes all that is armed, and after it each call fails until the machine is started again.
pub trait Arms: Disk {
    // What arming makes of the disk.
    ghost arms: { Self → arm_type → Self → Type 0 };

    // Whether a stop has come.
    ghost is_stopped: { Self → Bool };

    // How many calls failed because a growth found no memory.
    ghost refusals: { Self → ℕ };

    /// Arms a failure or a stop. Nothing that the disk tells changes.
    fn arm(&mut self, alloc: Global, arm: Arm) -> Result<Armed, NoMemory>
        requires { IsLawfulArm arm }
        ensures ok { OnOk result (arms self.old arm self.new) }
        ensures err { OnErr result (self.new ≡ self.old) }
        ensures unmoved { IsUnmoved Self.name Self.seen Self.moment Self.left Self.calls Self.faults self.old self.new };

    /// Whether a stop has come.
    fn stopped(&self) -> bool
        ensures { result ≡ is_stopped self.now };

    /// How many calls failed because a growth found no memory.
    fn refused(&self) -> u64
        ensures { result ≡ refusals self.now };
}

impl<D: Arms> Arms for &mut D {
    ghost arms = { λ old arm new. D.arms old.now arm new.now };

    ghost is_stopped = { λ d. D.is_stopped d.now };

    ghost refusals = { λ d. D.refusals d.now };

    fn arm(&mut self, alloc: Global, arm: Arm) -> Result<Armed, NoMemory> {
        D::arm(&mut **self, alloc, arm)
    }

    fn stopped(&self) -> bool {
        D::stopped(&**self)
    }

    fn refused(&self) -> u64 {
        D::refused(&**self)
    }
}
