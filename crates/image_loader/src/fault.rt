ghost use Rattle.std.specs.Prelude.{◌≡◌};
ghost use Rattle.image_loader.specs.FaultNumber.{elf_fault_number, load_fault_number, pe_fault_number};

use elf32_reader::ElfFault;
use pe_headers::PeFault;

/// Why a file is not loaded.
#[derive(Clone, Copy, Debug, PartialEq, Eq)]
pub enum LoadFault {
    /// It begins as an ELF file, and has this fault.
    Elf(ElfFault),
    /// It begins as a PE file, and has this fault.
    Pe(PeFault),
    /// It begins as neither.
    Unknown,
    Memory,
}

fn elf_fault_number(fault: ElfFault) -> Option<u32>
    ensures { result ≡ elf_fault_number fault }
{
    match fault {
        ElfFault::Short => Some(1),
        ElfFault::Magic => Some(2),
        ElfFault::Class => Some(3),
        ElfFault::DataOrder => Some(4),
        ElfFault::Kind => Some(5),
        ElfFault::Machine => Some(6),
        ElfFault::Headers => Some(7),
        ElfFault::HeadersOutside => Some(8),
        ElfFault::SegmentOutside => Some(9),
        ElfFault::FileLonger => Some(10),
        ElfFault::Address => Some(11),
        ElfFault::Overlap => Some(12),
        ElfFault::TooLarge => Some(13),
        ElfFault::Dynamic => Some(14),
        ElfFault::RelocOutside => Some(15),
        ElfFault::Name => Some(16),
        ElfFault::ManyImports => Some(17),
        ElfFault::Memory => None,
    }
}

fn pe_fault_number(fault: PeFault) -> Option<u32>
    ensures { result ≡ pe_fault_number fault }
{
    match fault {
        PeFault::Short => Some(101),
        PeFault::Magic => Some(102),
        PeFault::Signature => Some(103),
        PeFault::Machine => Some(104),
        PeFault::Optional => Some(105),
        PeFault::Sections => Some(106),
        PeFault::RawOutside => Some(107),
        PeFault::Address => Some(108),
        PeFault::Overlap => Some(109),
        PeFault::TooLarge => Some(110),
        PeFault::Imports => Some(111),
        PeFault::Name => Some(112),
        PeFault::ManyImports => Some(113),
        PeFault::Memory => None,
    }
}

/// The number by which a refusal is told: of an ELF file 1 to 17, of a PE file 101 to 113, each by its fault's place in the
/// order in which they are tried, and 200 for a file of neither format. None exactly for want of memory.
pub fn fault_number(f: &LoadFault) -> Option<u32>
    ensures { result ≡ load_fault_number f.now }
{
    match f {
        LoadFault::Elf(fault) => elf_fault_number(*fault),
        LoadFault::Pe(fault) => pe_fault_number(*fault),
        LoadFault::Unknown => Some(200),
        LoadFault::Memory => None,
    }
}
