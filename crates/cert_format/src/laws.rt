//! Laws of the texts of certificates, each the contract of a function that does nothing.

ghost use Rattle.cert_format.specs.Laws.{LawOfMigratedTexts, LawOfMigration, LawOfOneReading, ReadsBack, ReadsSpelling, ReadsWhatFits};

/// A text is read as the fraction that it spells, and as none where it spells none.
pub fn reads_spelling()
    ensures { ReadsSpelling }
{}

/// What is written of a certificate that fits is read back as itself.
pub fn reads_back()
    ensures { ReadsBack }
{}

/// What is read fits: its numbers are within their bounds, and no row is named twice.
pub fn reads_what_fits()
    ensures { ReadsWhatFits }
{}

/// What is written of a certificate that was read, of any version, is read back as the same certificate.
pub fn migrating_keeps()
    ensures { LawOfMigration }
{}

/// A text that was written, where it is read as a certificate, by whatever bound, is read as the one that it was written of. Numbers of
/// rows and units have 32 bits.
pub fn written_texts_have_one_reading()
    ensures { LawOfOneReading }
{}

/// A text that was written, where it is read as a certificate, is written again as the same text. Numbers of rows and
/// units have 32 bits.
pub fn migrated_texts_stay()
    ensures { LawOfMigratedTexts }
{}
