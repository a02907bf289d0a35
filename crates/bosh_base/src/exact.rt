ghost use Rattle.std.specs.Prelude.{◌≡◌, ◌↔◌, IsTrue};
ghost use Rattle.std.specs.Bool.{Decides};
ghost use Rattle.std.proofs.Common.{rules};
ghost use Rattle.std.proofs.lemmas.Bool.Decides.{Decides-eqb};
ghost use Rattle.bosh_base.specs.Exact.{Decides-list, Decides-option};
ghost use Rattle.bosh_base.specs.ExactParts.{Decides-method, Decides-owner, Decides-net_addr, Decides-make, Decides-mark, Decides-placed, Decides-spec, Decides-key, Decides-key_work, Decides-setting, Decides-prop_spec, Decides-link_spec, Decides-template_spec, Decides-package_spec, Decides-job_spec, Decides-task_end, Decides-digest, Decides-disk_want, Decides-answer, Decides-call};

use crate::{
    Addr, Answer, Call, Digest, DiskWant, Inst, JobSpec, Joint, Key, KeyWork, LinkSpec, Make, Mark,
    Method, Name, NetAddr, Owner, PackageSpec, Placed, Prop, PropSpec, Role, Seq, Setting, Spec,
    State, TaskEnd, TaskKind, TemplateSpec, Tie, Vm,
};

/// A type whose `==` tells its values apart: it is true of a value and itself alone.
pub trait Exact: PartialEq {
    ghost exact: { (a b : Self) → Decides (Self.eq a b) (a ≡ b) };
}

/// Whether two values are the same.
pub fn is_same<T: Exact>(a: &T, b: &T) -> bool
    ensures { IsTrue result ↔ (a.now ≡ b.now) }
{
    a == b
}

impl Exact for u8 {
    ghost exact = { Decides-eqb };
}

impl Exact for u32 {
    ghost exact = { Decides-eqb };
}

impl Exact for u64 {
    ghost exact = { Decides-eqb };
}

impl<T: Exact> Exact for Option<T> {
    ghost exact = { Decides-option T.exact };
}

impl<T: Exact> Exact for Seq<T> {
    ghost exact = { Decides-list T.exact };
}

impl Exact for Name {
    ghost exact = { Decides-list Decides-eqb };
}

impl Exact for Addr {
    ghost exact = { λ a b. Prim.search rules };
}

impl Exact for Inst {
    ghost exact = { λ a b. Prim.search rules };
}

impl Exact for State {
    ghost exact = { λ a b. Prim.search rules };
}

impl Exact for Joint {
    ghost exact = { λ a b. Prim.search rules };
}

impl Exact for TaskKind {
    ghost exact = { λ a b. Prim.search rules };
}

impl Exact for Tie {
    ghost exact = { λ a b. Prim.search rules };
}

impl Exact for Role {
    ghost exact = { λ a b. Prim.search rules };
}

impl Exact for Vm {
    ghost exact = { λ a b. Prim.search rules };
}

impl Exact for Prop {
    ghost exact = { λ a b. Prim.search rules };
}

impl Exact for Method {
    ghost exact = { Decides-method };
}

impl Exact for Owner {
    ghost exact = { Decides-owner };
}

impl Exact for NetAddr {
    ghost exact = { Decides-net_addr };
}

impl Exact for Make {
    ghost exact = { Decides-make };
}

impl Exact for Mark {
    ghost exact = { Decides-mark };
}

impl Exact for Placed {
    ghost exact = { Decides-placed };
}

impl Exact for Spec {
    ghost exact = { Decides-spec };
}

impl Exact for Key {
    ghost exact = { Decides-key };
}

impl Exact for KeyWork {
    ghost exact = { Decides-key_work };
}

impl Exact for Setting {
    ghost exact = { Decides-setting };
}

impl Exact for PropSpec {
    ghost exact = { Decides-prop_spec };
}

impl Exact for LinkSpec {
    ghost exact = { Decides-link_spec };
}

impl Exact for TemplateSpec {
    ghost exact = { Decides-template_spec };
}

impl Exact for PackageSpec {
    ghost exact = { Decides-package_spec };
}

impl Exact for JobSpec {
    ghost exact = { Decides-job_spec };
}

impl Exact for TaskEnd {
    ghost exact = { Decides-task_end };
}

impl Exact for Digest {
    ghost exact = { Decides-digest };
}

impl Exact for DiskWant {
    ghost exact = { Decides-disk_want };
}

impl Exact for Answer {
    ghost exact = { Decides-answer };
}

impl Exact for Call {
    ghost exact = { Decides-call };
}
