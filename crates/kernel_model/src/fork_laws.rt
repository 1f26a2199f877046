//! What proc_fork and proc_exec do. The statements are in `specs/ForkLaws.antt`, and each holds of every state and process.
ghost use Rattle.kernel_model.specs.ForkLaws.{ExecBegins, ForkMakesChild, ForksAreNumbered};

/// A fork that succeeds makes a process that was not there, live, with its parent's descriptors and the thread that made it alone. The
/// parent has a descriptor of it more, and counts it. The numbers of these are the next ones.
pub fn forks_make_child()
    ensures makes { ForkMakesChild }
    ensures numbers { ForksAreNumbered }
{}

/// A proc_exec that succeeds is of a file whose bytes are a program, and the reply has these with the canary. The process has the
/// descriptors that were listed, under their places in the list, and no other.
pub fn execs_begin_listed()
    ensures { ExecBegins }
{}
