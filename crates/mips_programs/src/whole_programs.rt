//! Laws of whole programs: the generated MIPS code runs as the forests from which it came.
ghost use Rattle.mips_programs.specs.WholePrograms.{ProgramsAgree};

/// Each generated unit does on the machine what its forests do, in both directions: its function
/// main is a label of the program, and from there the machine never gets stuck, has always printed
/// a first part of what the forests print, ends exactly as they do, and runs out of stack only
/// where the open calls have more room than the stack. The call does nothing: it is this fact.
/// Source: Fraser and Hanson, A Retargetable C Compiler, chapter 16; G. Kane and J. Heinrich, MIPS
/// RISC Architecture, 1992.
pub fn programs_agree()
    ensures { ProgramsAgree }
{}
