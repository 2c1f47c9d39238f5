// The laws of Worlds as registers.
ghost use Rattle.cad_worlds.specs.Laws.{RegistersRise, RowsAreRegisters, OneWorld};

/// The registers of a sound World stand in byte order of their keys, each key once.
pub fn registers_rise()
    ensures { RegistersRise }
{}

/// Rows in byte order of their keys that stand for a World are its registers, and have its size.
pub fn rows_are_registers()
    ensures { RowsAreRegisters }
{}

/// One map of registers stands for one World, as far as contracts that were deployed are known by their codes.
pub fn one_world()
    ensures { OneWorld }
{}
