// The sizes and addresses that a dynamic section gives, and those of its tables' entries.
#[derive(Clone, Copy)]
pub struct Tables {
    // DT_PLTRELSZ
    pub jmprel_size: Option<u32>,
    // DT_STRTAB
    pub strtab: Option<u32>,
    // DT_SYMTAB
    pub symtab: Option<u32>,
    // DT_STRSZ
    pub strtab_size: Option<u32>,
    // DT_SYMENT
    pub symbol_size: Option<u32>,
    // DT_REL
    pub rel: Option<u32>,
    // DT_RELSZ
    pub rel_size: Option<u32>,
    // DT_RELENT
    pub rel_entry_size: Option<u32>,
    // DT_PLTREL
    pub jmprel_kind: Option<u32>,
    // DT_JMPREL
    pub jmprel: Option<u32>,
}
