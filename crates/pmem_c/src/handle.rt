//! A boxed session as C has it.
ghost use Rattle.std.specs.Prelude.{◌≡◌, Option, Some, None, IsSome};
ghost use Rattle.std.specs.contracts.impls.GlobalAllocator.TheImpl.{ghosts};
ghost use Rattle.std.specs.declared.alloc.Global.{Global};
ghost use Rattle.pmem_c.specs.contracts.session.Session as session;
ghost use Rattle.pmem_c.specs.declared.session.Session.{Session};
ghost use Rattle.pmem_c.specs.Keeping.{keeps};

use crate::session::Session;
use loose::Loose;
use std::alloc::Global;
use std::marker::Model;
use std::ptr;

/// A boxed session as C has it, or nothing.
#[repr(C)]
pub struct Handle {
    at: *mut (),
    ghost alloc: { Global },
    ghost held: { Option Session },
}

impl Model for Handle {
    ghost also_owns = { λ h. keeps (ghosts.dealloc_token h.alloc) session.the_row h.at h.held };
}

impl Handle {
    pub(crate) fn of(loose: Loose<Session, Global>) -> Handle
        ensures { result.held ≡ Some loose.value }
    {
        let Loose { at, alloc: _ } = loose;
        Handle { at: at as *mut () }
    }

    pub(crate) fn closed(alloc: Global) -> Handle
        ensures { result.held ≡ None }
    {
        let _ = alloc;
        Handle {
            at: ptr::null_mut(),
        }
    }

    pub(crate) fn into_loose(self, alloc: Global) -> Loose<Session, Global>
        requires { IsSome self.held }
        ensures { Some result.value ≡ self.held }
    {
        let Handle { at } = self;
        Loose {
            at: at as *mut Session,
            alloc,
        }
    }
}

/// A handle may be let go only if it owns nothing: a session that it holds is taken out first.
impl Drop for Handle {
    fn drop(self)
        requires { self.held ≡ None }
    {
        let Handle { at: _ } = self;
    }
}
