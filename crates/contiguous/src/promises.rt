//! What holds of a contiguous file over every step, and over every history.

ghost use Rattle.contiguous.specs.Bytes.{BytesAreInPlace};
ghost use Rattle.contiguous.specs.Promises.{CatalogsBeginContiguous, EmptyBeginsContiguous, HistoriesStayContiguous, OnlySuchWrites, OthersKeepTheExtent, OthersStayContiguous, TruncationsKeepTheExtent, TruncationsStayContiguous, WritesStayContiguous};

/// What holds of a contiguous file over every step of the machine, and over every history that leaves no page of it out.
pub fn every_contiguous_step()
    ensures writes { WritesStayContiguous }
    ensures only { OnlySuchWrites }
    ensures cut { TruncationsKeepTheExtent }
    ensures truncations { TruncationsStayContiguous }
    ensures kept { OthersKeepTheExtent }
    ensures others { OthersStayContiguous }
    ensures begin { CatalogsBeginContiguous }
    ensures empty { EmptyBeginsContiguous }
    ensures histories { HistoriesStayContiguous }
    ensures bytes { BytesAreInPlace }
{}
